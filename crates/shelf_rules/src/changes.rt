// The commands that write a place, and are answered by nothing but how the call ended.
use settings::Outcome;
use shelf_lines::{Fault, Scratch, value, values};

// `case P SELECTOR B0 B1 ..`
fn case(
    place: &str,
    selector: &str,
    branches: &[&str],
    table: &mut [u32],
    scratch: &mut Scratch,
) -> Result<Outcome, Fault> {
    let mut room = [0u32; 64];
    let branches = values(branches, &mut room)?;
    let place = value(place)?;
    let selector = value(selector)?;
    Ok(rule_operations::case(table, scratch.filled(), place, selector, branches))
}

// How the call ended that the words are, where it is one of these.
pub fn change(words: &[&str], table: &mut [u32], scratch: &mut Scratch) -> Result<Outcome, Fault> {
    match words {
        ["constant", place, number] => {
            Ok(rule_calls::constant(table, value(place)?, value(number)?))
        }
        ["copy", place, from] => Ok(rule_calls::copy(table, value(place)?, value(from)?)),
        ["restrict", place, from, feature, to] => Ok(rule_operations::restrict(
            table,
            value(place)?,
            value(from)?,
            value(feature)?,
            value(to)?,
        )),
        ["case", place, selector, branches @ ..] => {
            case(place, selector, branches, table, scratch)
        }
        ["apply", place, operator, a, b] => {
            let (place, operator) = (value(place)?, value(operator)?);
            let (a, b) = (value(a)?, value(b)?);
            Ok(rule_operations::apply(table, scratch.filled(), place, operator, a, b))
        }
        ["forget", place, from, feature] => {
            let (place, from, feature) = (value(place)?, value(from)?, value(feature)?);
            Ok(rule_operations::forget(table, scratch.filled(), place, from, feature))
        }
        _ => Err(Fault::Unknown),
    }
}
