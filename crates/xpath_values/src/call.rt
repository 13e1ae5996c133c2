ghost use Rattle.std.specs.Prelude.{◌≡◌, IfOk, length};
ghost use Rattle.std.specs.Str.{chars};
ghost use Rattle.xpath_values.specs.Calls.{TakesArguments, call_value};

use crate::number::Num;
use crate::texts;
use crate::value::Value;
use serna_kinds::{Chars, NoMemory, TextFunction};
use std::alloc::Global;

/// Calls a string function (XPath 1.0, section 4.2). `arguments` are its string arguments and `numbers` its number
/// arguments, each in order, and one that XPath lets stand by default is handed in too.
pub fn call_text(
    alloc: Global,
    function: TextFunction,
    arguments: &[Chars],
    numbers: &[Num],
) -> Result<Value, NoMemory>
    requires { TakesArguments function (length arguments.now) (length numbers.now) }
    ensures { IfOk result (λ value. value ≡ call_value function arguments.now numbers.now) }
{
    match function {
        TextFunction::Concat => {
            let joined = texts::concat(alloc, arguments)?;
            Ok(Value::Text(joined))
        }
        TextFunction::StartsWith => Ok(Value::Truth(texts::begins_with(
            arguments[0].as_text(),
            arguments[1].as_text(),
        ))),
        TextFunction::Contains => {
            let cut = texts::cut_around(arguments[0].as_text(), arguments[1].as_text());
            Ok(Value::Truth(cut.is_some()))
        }
        TextFunction::SubstringBefore => {
            let part = texts::before(arguments[0].as_text(), arguments[1].as_text());
            text_value(alloc, part)
        }
        TextFunction::SubstringAfter => {
            let part = texts::after(arguments[0].as_text(), arguments[1].as_text());
            text_value(alloc, part)
        }
        TextFunction::Substring => {
            let count = numbers.get(1).copied();
            let part = texts::substring(arguments[0].as_text(), numbers[0], count);
            text_value(alloc, part)
        }
        TextFunction::StringLength => {
            let count = texts::character_count(arguments[0].as_text());
            Ok(Value::Number(Num::new(count as i128)))
        }
        TextFunction::NormalizeSpace => {
            let normal = texts::normalize_space(alloc, arguments[0].as_text())?;
            Ok(Value::Text(normal))
        }
        TextFunction::Translate => {
            let from = arguments[1].as_text();
            let to = arguments[2].as_text();
            let outcome = texts::translate(alloc, arguments[0].as_text(), from, to)?;
            Ok(Value::Text(outcome))
        }
    }
}

/// A text as a value, in memory of its own.
fn text_value(alloc: Global, text: &str) -> Result<Value, NoMemory>
    ensures { IfOk result (λ value. value ≡ Value.Text (chars text.now)) }
{
    let text = Chars::from_text(alloc, text)?;
    Ok(Value::Text(text))
}
