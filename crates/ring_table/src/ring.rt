// A lane's ring of slots: how far its first frame stands from its first slot, and how many frames wait.
#[derive(Clone, Copy, PartialEq, Eq, Debug)]
pub struct Ring {
    pub head: u16,
    pub count: u16,
}
