/// What a guest page is.
#[derive(Clone, Copy, Debug, PartialEq, Eq)]
pub enum AreaKind {
    /// In no region.
    Outside,
    /// In a region, and the TVM's alone.
    Private,
    /// In a region, and shared with the host.
    Shared,
}
