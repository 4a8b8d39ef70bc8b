// What is asked of a receipt that is being rung up.
#[derive(Clone, Copy, PartialEq, Eq, Debug)]
pub enum Action {
    // Opens an element with this label.
    Open(u16),
    // Closes the innermost open element.
    Close,
}
