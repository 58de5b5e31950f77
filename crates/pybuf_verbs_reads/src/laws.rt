//! Laws of the definitions that the contracts cite.
ghost use Rattle.pybuf_verbs_reads.specs.Laws.{GetIsSafe, BytesIsSafe, LenIsSafe, PropertyIsSafe, ToListIsSafe, ListsHoldTheItems};

/// Where `get` of bytes and of an item isn't refused, it leaves a sound exporter sound, and its reply is no refusal.
/// Example: `get -1` of `bytearray(b"abc")` replies 99.
pub fn get_is_safe()
    ensures { GetIsSafe }
{
    pybuf_state::reading_keeps();
}

/// Where `bytes` isn't refused, it leaves a sound exporter sound, and its reply is no refusal.
/// Example: `bytes` of `bytearray(b"abc")` replies `b"abc"`.
pub fn bytes_is_safe()
    ensures { BytesIsSafe }
{
    pybuf_state::reading_keeps();
}

/// Where `len` isn't refused, it leaves a sound exporter sound, and its reply is no refusal.
/// Example: `len` of `bytearray(b"abc")` replies 3.
pub fn len_is_safe()
    ensures { LenIsSafe }
{
    pybuf_state::reading_keeps();
}

/// Where `prop` isn't refused, it leaves a sound exporter sound, and its reply is no refusal.
/// Example: `prop exports` of a bytearray without views replies 0.
pub fn property_is_safe()
    ensures { PropertyIsSafe }
{
    pybuf_state::reading_keeps();
}

/// Where `tolist` isn't refused, it leaves a sound exporter sound, and its reply is no refusal.
/// Example: `tolist` of a view of `b"Abc"` replies the items 65, 98 and 99.
pub fn tolist_is_safe()
    ensures { ToListIsSafe }
{
    pybuf_state::reading_keeps();
}

/// The items that `tolist` lists, put end to end, are those of the view in order. What `get` reads at a key stands at
/// the number of the item that the key names. There are as many as the shape has places, so that they are nested by
/// it exactly.
/// Example: of a view of `b"Abc"` `tolist` has 98 at place 1, and `get 1` replies 98.
pub fn lists_hold_the_items()
    ensures { ListsHoldTheItems }
{
    pybuf_state::live_layouts_are_sound();
    pybuf_memoryview::keys_name_items();
}
