// What a call asks of its walk.
#[derive(Clone, Copy)]
pub struct Wanted {
    // So many readings are passed over.
    pub pass: u32,
    // So many rows there is room for behind them.
    pub room: usize,
    // No more tries than this.
    pub limit: u32,
}
