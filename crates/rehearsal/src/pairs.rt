// The two boards of a rehearsal: the first plays the list, the twin its own steps alone.
use crate::boards::Board;

#[derive(Drop)]
pub(crate) struct Pair<'a, 'b, M, N> {
    pub(crate) first: Board<'a, M>,
    pub(crate) twin: Board<'b, N>,
}
