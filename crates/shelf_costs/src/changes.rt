// The commands that write a place, and are answered by nothing but how the call ended.
use settings::Outcome;
use shelf_lines::{Fault, Scratch, value, values};

// `price P FEATURE X0 X1 ..`
fn price(place: &str, feature: &str, prices: &[&str], table: &mut [u32]) -> Result<Outcome, Fault> {
    let mut room = [0i64; 64];
    let prices = values(prices, &mut room)?;
    Ok(cost_operations::price(table, value(place)?, value(feature)?, prices))
}

// How the call ended that the words are, where it is one of these.
pub fn change(words: &[&str], table: &mut [u32], scratch: &mut Scratch) -> Result<Outcome, Fault> {
    match words {
        ["cconstant", place, cost] => Ok(cost_calls::constant(table, value(place)?, value(cost)?)),
        ["ccopy", place, from] => Ok(cost_calls::copy(table, value(place)?, value(from)?)),
        ["price", place, feature, prices @ ..] => price(place, feature, prices, table),
        ["add", place, a, b] => {
            let (place, a, b) = (value(place)?, value(a)?, value(b)?);
            Ok(cost_operations::add(table, scratch.filled(), place, a, b))
        }
        ["subtract", place, a, b] => {
            let (place, a, b) = (value(place)?, value(a)?, value(b)?);
            Ok(cost_operations::subtract(table, scratch.filled(), place, a, b))
        }
        ["smaller", place, a, b] => {
            let (place, a, b) = (value(place)?, value(a)?, value(b)?);
            Ok(cost_operations::smaller(table, scratch.filled(), place, a, b))
        }
        ["larger", place, a, b] => {
            let (place, a, b) = (value(place)?, value(a)?, value(b)?);
            Ok(cost_operations::larger(table, scratch.filled(), place, a, b))
        }
        ["scale", place, a, factor] => {
            let (place, a, factor) = (value(place)?, value(a)?, value(factor)?);
            Ok(cost_operations::scale(table, scratch.filled(), place, a, factor))
        }
        _ => Err(Fault::Unknown),
    }
}
