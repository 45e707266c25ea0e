// A book's three schedules: of the cash-out, of the balancing charges and of the overrun charges. Their lines are
// `terms_of` in clauses: a ghost member of a trait over the three would be named by a longer quote.
#[derive(Drop)]
pub(crate) struct Schedules<M, D, O> {
    pub(crate) month: M,
    pub(crate) day: D,
    pub(crate) overrun: O,
}
