// The operators on costs, by their numbers: a number only chooses the entry of a remembered result.
#[derive(Clone, Copy)]
pub enum Operation {
    Add = 1,
    Subtract = 2,
    Smaller = 3,
    Larger = 4,
    Scale = 5,
    Choose = 6,
    Less = 7,
    Lowest = 8,
}
