//! The plans beside which a plan is audited.

/// What there is of each companion of a plan: of the senate plan in which the districts of a house plan nest, and of the plan for
/// the congress by which those of a house or senate plan are divided.
#[derive(Clone, Copy)]
pub struct Companions<T> {
    pub senate: Option<T>,
    pub congress: Option<T>,
}
