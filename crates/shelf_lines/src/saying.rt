// Answers, written to standard output. Each write may fail, and its error is handed on.
use crate::faults::Fault;
use promises::Looked;
use settings::{Refusal, Setting, outcome_number};
use std::fmt;

// The answer of a call that tells nothing but how it ended.
pub fn say(rt: &impl Print, answer: Result<(), Refusal>) -> Result<(), Fault> {
    rt.print(outcome_number(&answer))?;
    Ok(())
}

// The answer of a call that tells a number: 0 where it was refused.
pub fn say_number<T: fmt::Display + Default + Drop>(
    rt: &impl Print,
    answer: Result<T, Refusal>,
) -> Result<(), Fault> {
    let ending = outcome_number(&answer);
    print!(rt; "{ending} {}", answer.unwrap_or_default())?;
    Ok(())
}

// The answer of a look up of a number: the number, and how many features were asked.
pub fn say_looked(rt: &impl Print, answer: Result<Looked, Refusal>) -> Result<(), Fault> {
    let ending = outcome_number(&answer);
    let looked = answer.unwrap_or_default();
    print!(rt; "{ending} {} {}", looked.number, looked.asked)?;
    Ok(())
}

// The first values of a setting, each after a space.
#[derive(Clone, Copy)]
pub struct Values {
    pub setting: Setting,
    pub count: usize,
}

impl fmt::Display for Values {
    fn fmt<W: fmt::Write>(&self, f: &mut fmt::Formatter<W>) -> fmt::Result {
        for value in self.setting.values.iter().take(self.count) {
            write!(f, " {value}")?;
        }
        Ok(())
    }
}
