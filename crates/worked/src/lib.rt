//! Worked examples of the definitions, in one statement.

#![tactic(auto)]

ghost use Rattle.worked.specs.Examples.{WorkedExamples};

/// Every example that the documents give of the rules, shown of the definitions that the contracts cite.
pub fn worked_examples()
    ensures { WorkedExamples }
{}
