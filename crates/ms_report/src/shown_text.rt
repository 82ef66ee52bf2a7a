//! What is shown of an answer: an assignment, its values by themselves or as numbers.

ghost use Rattle.std.specs.Prelude.{◌≡◌, ◌++◌, ◌∷◌, [], OnOk, string_bytes};
ghost use Rattle.ms_report.specs.Numbers.{members_of};
ghost use Rattle.ms_report.specs.Report.{lines_text, members_text, value_text};
ghost use Rattle.ms_report.specs.inner.Shown.{AreSpelled, IsShown, IsSpelled, head_text, measure_of, shown_text, spelled};

use crate::binary::push_binary;
use crate::number::push_number;
use ms_list::{List, Name};
use ms_logic::{Assignment, Value};
use std::alloc::AllocError;

/// How what stands for a name is spelled.
#[derive(Clone, Copy)]
pub(crate) enum Spelling {
    AsValue,
    /// As the number of the set.
    AsNumber,
}

/// The word for the length.
fn measure(spelling: Spelling) -> &'static str
    ensures { result.now ≡ measure_of spelling }
{
    match spelling {
        Spelling::AsValue => " length ",
        Spelling::AsNumber => " digits ",
    }
}

/// The line on the length, or that there is nothing.
pub(crate) fn push_head(
    text: &mut String,
    word: &str,
    measure: &str,
    found: &Option<Assignment>,
) -> Result<(), AllocError>
    ensures { OnOk result (string_bytes text.new ≡ string_bytes text.old ++ head_text word.now measure.now found.now) }
{
    match found {
        None => {
            text.push_str("no ")?;
            text.push_str(word)?;
        }
        Some(assignment) => {
            text.push_str(word)?;
            text.push_str(measure)?;
            push_number(text, assignment.length)?;
        }
    }
    text.push_str("\n")
}

/// The example or the counterexample, by the word for it.
pub(crate) fn push_shown(
    text: &mut String,
    spelling: Spelling,
    word: &str,
    names: &List<Name>,
    found: &Option<Assignment>,
) -> Result<(), AllocError>
    requires { IsShown spelling found.now }
    ensures { OnOk result (string_bytes text.new ≡ string_bytes text.old ++ shown_text spelling word.now names.now found.now) }
{
    push_head(text, word, measure(spelling), found)?;
    match found {
        None => Ok(()),
        Some(assignment) => push_lines(text, spelling, names.slice(), assignment.values.slice()),
    }
}

/// A line for each name and its value.
fn push_lines(
    text: &mut String,
    spelling: Spelling,
    names: &[Name],
    values: &[Value],
) -> Result<(), AllocError>
    requires { AreSpelled spelling values.now }
    ensures { OnOk result (string_bytes text.new ≡ string_bytes text.old ++ lines_text (spelled spelling) names.now values.now) }
{
    let count = names.len().min(values.len());
    for i in 0..count {
        push_line(text, spelling, &names[i], &values[i])?;
    }
    Ok(())
}

fn push_line(
    text: &mut String,
    spelling: Spelling,
    name: &Name,
    value: &Value,
) -> Result<(), AllocError>
    requires { IsSpelled spelling value.now }
    ensures { OnOk result (string_bytes text.new ≡ string_bytes text.old ++ lines_text (spelled spelling) (name.now ∷ []) (value.now ∷ [])) }
{
    text.push_str(name.text())?;
    text.push_str(" = ")?;
    match spelling {
        Spelling::AsValue => push_value(text, value)?,
        Spelling::AsNumber => push_binary(text, members(value))?,
    }
    text.push_str("\n")
}

/// The members of a set; a value of another order has none.
fn members(value: &Value) -> &[u64]
    ensures { result.now ≡ members_of value.now }
{
    match value {
        Value::Set(members) => members.slice(),
        Value::Truth(_) | Value::Number(_) => &[],
    }
}

fn push_value(text: &mut String, value: &Value) -> Result<(), AllocError>
    ensures { OnOk result (string_bytes text.new ≡ string_bytes text.old ++ value_text value.now) }
{
    match value {
        Value::Truth(true) => text.push_str("true"),
        Value::Truth(false) => text.push_str("false"),
        Value::Number(number) => push_number(text, *number),
        Value::Set(members) => {
            text.push_str("{")?;
            push_members(text, members.slice())?;
            text.push_str("}")
        }
    }
}

fn push_members(text: &mut String, members: &[u64]) -> Result<(), AllocError>
    ensures { OnOk result (string_bytes text.new ≡ string_bytes text.old ++ members_text members.now) }
{
    let Some((first, further)) = members.split_first() else {
        return Ok(());
    };
    push_number(text, *first)?;
    for member in further {
        text.push_str(", ")?;
        push_number(text, *member)?;
    }
    Ok(())
}
