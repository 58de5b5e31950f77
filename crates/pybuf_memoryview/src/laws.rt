//! Laws of the definitions that the contracts cite. Each stands on a function with an empty body.
ghost use Rattle.pybuf_memoryview.specs.Laws.{ByteItemsAreTheirByte, NumbersLookAtNoLoan, ContentsAreWhole, ItemBytesLieInside, ItemBytesAreTheContent, ContiguousItemsAreOneRun, KeysNameItems, ItemsHaveTheirEntries};

/// A value is written as an item of the format `B` as its one byte, whatever is lent.
/// Example: the number 65 is written as an item of the format `B` as the byte 65, with no loans and with any.
pub fn byte_items_are_their_byte()
    ensures { ByteItemsAreTheirByte }
{}

/// A format without codes for bytes writes the same whatever is lent.
/// Example: 5 is written by the format `H` as `b"\x05\x00"`, whatever handles are lent.
pub fn numbers_look_at_no_loan()
    ensures { NumbersLookAtNoLoan }
{}

/// The bytes of a view whose items lie inside are as many as its items have.
/// Example: a view of three items of two bytes has six bytes.
pub fn contents_are_whole()
    ensures { ContentsAreWhole }
{}

/// Where the items of a view lie inside the bytes, the place of each of their bytes does too.
/// Example: items of two bytes that start at 0 and 2 of four bytes have their bytes at 0, 1, 2 and 3.
pub fn item_bytes_lie_inside()
    ensures { ItemBytesLieInside }
{}

/// The bytes at the places of a view's items, item by item, are the bytes of the view.
/// Example: of items at 5, 3 and 1 of `b"abcdef"` both are `b"fdb"`.
pub fn item_bytes_are_the_content()
    ensures { ItemBytesAreTheContent }
{}

/// The bytes of items that lie one after the other are one run of bytes, from the place of the first item on.
/// Example: the items at 1, 2 and 3 of `b"abcdef"` have the bytes `b"bcd"`.
pub fn contiguous_items_are_one_run()
    ensures { ContiguousItemsAreOneRun }
{}

/// The item that a key names is one of the view's items. Its number is below the product of the shape.
/// Example: in the shape `[2, 3]` the key `(1, 2)` names the item of number 5, and there are six.
pub fn keys_name_items()
    ensures { KeysNameItems }
{}

/// Each item of a view is named by an entry of each dimension, and by no other such entries.
/// Example: in the shape `[2, 3]` the item of number 5 is named by the entries 1 and 2 alone.
pub fn items_have_their_entries()
    ensures { ItemsHaveTheirEntries }
{}
