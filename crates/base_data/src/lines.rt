//! Converts the position of a byte in a text to a line and a column, both counted from 1, and
//! prints positions. The law `LinesReportPositions` says that line and column determine the
//! position. Columns count bytes, not characters.

mod laws;
mod line_column;
mod position_style;

pub use laws::{first_lines_count, lines_report_positions};
pub use position_style::PositionStyle;
