// The public calls that take a cone: the tests of feasibility (feasibility), the calls that copy (copies), and the formulas (formulas).
#![tactic(auto)]

pub mod copies;
pub mod feasibility;
pub mod formulas;
