//! Laws of records, and of what is written through a view of one of their fields.
ghost use Rattle.pybuf_table.specs.Laws.{RowsAreRecords, CodesDecideOrders, SetsChangeOneField, SlicesChangeOneField};

/// Row `k` of bytes has the values of the record that begins `k` sizes from their begin, and there are as many rows as the
/// size goes into the bytes.
/// Example: row 1 of the bytes `b"ada\0\x05\0bob\0\x07\0"` by `<4sH` has the values of the record at 6.
pub fn rows_are_records()
    ensures { RowsAreRecords }
{}

/// Whether a value is in an order with a field's values is decided by the field's code, whatever the records are.
/// Example: a number is in an order with a field of the code `H`, and bytes are not.
pub fn codes_decide_orders()
    ensures { CodesDecideOrders }
{}

/// A `set` through a view of a field changes this field of the record that the key names, and nothing else: all other
/// fields, pad bytes, gaps and records stay.
/// Example: `set -1 258` through the view of the field 1 of `<4sH` leaves the name of the last record as it is.
pub fn sets_change_one_field()
    ensures { SetsChangeOneField }
{
    pybuf_struct::fields_lie_in_order();
    pybuf_struct::packing_fills_the_format();
    pybuf_memoryview::keys_name_items();
    pybuf_state::live_layouts_are_sound();
}

/// A `set` by a slice through a view of a field changes this field of records, and nothing else: all other fields, pad
/// bytes and gaps stay.
/// Example: `set 0:2:None` through the view of a field leaves every other field of the records 0 and 1 as it is.
pub fn slices_change_one_field()
    ensures { SlicesChangeOneField }
{
    pybuf_struct::fields_lie_in_order();
    pybuf_exporter::steps_assign_by_value();
}
