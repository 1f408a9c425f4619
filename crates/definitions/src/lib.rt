// The type of the code that the definitions speak of; they stand in specs/.
#![tactic(auto)]

// The node that supplies a request, and how many steps it is above the client.
#[derive(Clone, Copy)]
pub struct Supplier {
    pub node: usize,
    pub steps: usize,
}
