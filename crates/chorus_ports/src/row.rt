//! Where a record stands in a table.

ghost use Rattle.std.specs.Prelude.{◌≡◌, ◌≤◌, length};
ghost use Rattle.chorus_ports.specs.Rows.{row_of};

use chorus_entry::PortRecord;
use chorus_ui::Ui;

/// The position of the port's record in the table of ports, counted from 0: the length where it has none.
pub(crate) fn row_of(records: &[PortRecord], port: Ui) -> usize
    ensures value { result ≡ row_of port records.now }
    ensures within { result ≤ length records.now }
{
    for (row, record) in records.iter().enumerate() {
        if record.ui == port {
            return row;
        }
    }
    records.len()
}
