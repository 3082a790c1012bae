// What a lent step or run hands back beside the machine, which is changed where it lies: the answer, the input's place and the number of output bytes
// written.
#[derive(Clone, Copy)]
pub struct Report<A> {
    pub answer: A,
    pub place: usize,
    pub written: usize,
}
