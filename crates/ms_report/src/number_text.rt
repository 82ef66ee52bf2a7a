ghost use Rattle.std.specs.Prelude.{◌≡◌, ◌++◌, IfOk, string_bytes};
ghost use Rattle.ms_logic.specs.FiniteSet.{IsRising};
ghost use Rattle.ms_report.specs.Numbers.{AreSets, number_answer_of, number_line_of, number_of_set, number_report_of};

use crate::binary::push_binary;
use crate::found::Answer;
use crate::report_text::push_answer;
use crate::shown_text::Spelling;
use ms_list::{Bytes, List, Name, NoMemory};
use std::alloc::{AllocError, Global};

/// The line of the number of a set: its name, the number in binary, and in decimal where it is below 2 ^ 128. No line feed ends it.
pub fn number_line(alloc: Global, name: &Name, set: &List<u64>) -> Result<Bytes, NoMemory>
    requires { IsRising set.now }
    ensures { IfOk result (λ line. line ≡ number_line_of name.now (number_of_set set.now)) }
{
    match line(alloc, name, set.slice()) {
        Ok(line) => Ok(List::from(line.into_bytes())),
        Err(_) => Err(NoMemory),
    }
}

fn line(alloc: Global, name: &Name, set: &[u64]) -> Result<String, AllocError>
    requires { IsRising set.now }
    ensures { IfOk result (λ line. string_bytes line ≡ number_line_of name.now (number_of_set set.now)) }
{
    let mut line = String::from_str(alloc, name.text())?;
    line.push_str(" = ")?;
    push_binary(&mut line, set)?;
    Ok(line)
}

/// The report on a formula of linear arithmetic over numbers with these names: the verdict, numbers at which it holds, and numbers
/// at which it does not.
pub fn number_report(alloc: Global, names: &List<Name>, answer: &Answer) -> Result<Bytes, NoMemory>
    requires example { AreSets answer.now.example }
    requires counterexample { AreSets answer.now.counterexample }
    ensures { IfOk result (λ text. text ≡ number_report_of names.now (number_answer_of answer.now)) }
{
    match text(alloc, names, answer) {
        Ok(text) => Ok(List::from(text.into_bytes())),
        Err(_) => Err(NoMemory),
    }
}

fn text(alloc: Global, names: &List<Name>, answer: &Answer) -> Result<String, AllocError>
    requires example { AreSets answer.now.example }
    requires counterexample { AreSets answer.now.counterexample }
    ensures { IfOk result (λ text. string_bytes text ≡ number_report_of names.now (number_answer_of answer.now)) }
{
    let mut text = String::new(alloc);
    push_answer(&mut text, Spelling::AsNumber, names, answer)?;
    Ok(text)
}
