// What a cone test answers. 02, Order 5: "Near the wall the sign of the residue is noise. Feasibility shall answer yes, no or undecided."
ghost use Rattle.std.specs.Prelude.{◌≡◌};
ghost use Rattle.cone.specs.table.Table.{number_of as refusal_number};
ghost use Rattle.cone.specs.verdict.Answers.{told_of, is_yes, number_of};
ghost use Rattle.cone.specs.verdict.Margins.{power_margin};
ghost use Rattle.cone.specs.verdict.Residues.{residue_of, answer_of};

use crate::table::Refusal;

#[derive(Clone, Copy, Debug, PartialEq, Eq)]
pub enum Answer {
    // the residue is below minus the margin, or a sign test failed
    No,
    // the residue is above the margin
    Yes,
    Undecided,
}

// The answer of a call, as include/spindle.h lays it out.
#[repr(C)]
#[derive(Clone, Copy)]
pub struct Verdict {
    pub code: u32,
    pub answer: u32,
}

impl Verdict {
    // 01: "A refusal returns .. no for a yes or no"
    pub fn refused(refusal: Refusal) -> Verdict
        ensures { result ≡ record { code = refusal_number refusal; answer = 0 } }
    {
        Verdict {
            code: refusal.number(),
            answer: 0,
        }
    }
}

// A NaN, of the residue or of the margin, passes neither comparison, and no residue is beyond an infinite margin.
pub fn told(res: f64, margin: f64) -> Answer
    ensures { result ≡ told_of res margin }
{
    if res > margin {
        return Answer::Yes;
    }
    if res < -margin {
        return Answer::No;
    }
    Answer::Undecided
}

// A trial passes only on yes.
pub fn is_yes(answer: Answer) -> bool
    ensures { result ≡ is_yes answer }
{
    answer == Answer::Yes
}

// The number that stands for an answer in C. A function and not `From`: its law, `number_agrees`, is of this function's contract.
pub fn number(answer: Answer) -> u32
    ensures { result ≡ number_of answer }
{
    match answer {
        Answer::No => 0,
        Answer::Yes => 1,
        Answer::Undecided => 2,
    }
}

// 2^-30
const POWER: f64 = 9.31322574615478515625e-10;

// The margin of both power cones, of the two numbers that their residue is the difference of.
pub fn power_margin(power: f64, square: f64) -> f64
    ensures { result ≡ power_margin power square }
{
    POWER * (power + square)
}

// What a test of either power cone compares with its margin, beside the two numbers that it is the difference of: res = power - square.
#[derive(Clone, Copy)]
pub struct Residue {
    pub res: f64,
    pub power: f64,
    pub square: f64,
}

impl Residue {
    pub fn of(power: f64, square: f64) -> Residue
        ensures { result ≡ residue_of power square }
    {
        Residue {
            res: power - square,
            power,
            square,
        }
    }

    // Where the signs pass.
    pub fn answer(self) -> Answer
        ensures { result ≡ answer_of self }
    {
        told(self.res, power_margin(self.power, self.square))
    }
}
