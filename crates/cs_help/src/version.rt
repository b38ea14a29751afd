//! Which program this is.

/// The program's version, and the line of the logic that it was proved in, which the toolchain prints
/// too. README has both.
pub const VERSION: &str = "chainspace 0.20\nlogic dac8208d650f15bf\n";
