// What a list is made of: a request, a step, or a run with its budget.
#[derive(Clone, Copy)]
pub enum Action {
    Request,
    Step,
    Run(u16),
}
