//! Laws over all formats, values and bytes. Their statements cite the definitions that the
//! contracts of `FormatSpec::parse`, `pack`, `pack_into` and `unpack` cite.
ghost use Rattle.pybuf_struct.specs.Laws.{CodesAreAllowed, SizesEndTheCodes, FieldsLieInOrder, ReadsWhatWasWritten, WritesWhatWasRead, FormatsReadBack, PackingFillsTheFormat, BytesOfTheSizeAreRead, NativeCodesAreSpelled, NativeCodesHaveTheirSize};

/// Codes and counts that are written out by the grammar are read as the same codes and counts: for
/// every prefix, every code that formats of this prefix have, and every count, whether it is
/// written in decimal, with zeros before it, or left out where it is 1, as long as the total size
/// is at most `isize::MAX`.
///
/// Example: `<03hI` is read as `h` with the count 3 and `I` with the count 1.
pub fn formats_read_back()
    ensures { FormatsReadBack }
{}

/// The fields of a format that a text spells follow one another within the format's size, and each
/// begins at a multiple of its code's alignment.
///
/// Example: the fields of `bI` lie at 0 and at 4, within its 8 bytes.
pub fn fields_lie_in_order()
    ensures { FieldsLieInOrder }
{}

/// Each code of a format that a text spells is one that formats of its prefix have.
///
/// Example: `n` is a code of the format `@n`, and there is no format `<n`.
pub fn codes_are_allowed()
    ensures { CodesAreAllowed }
{}

/// The size of a format that a text spells is the offset at which its codes end, one after another from offset 0, each
/// after its padding.
///
/// Example: the codes of `bI` end at 8, which is its size.
pub fn sizes_end_the_codes()
    ensures { SizesEndTheCodes }
{}

/// `unpack` of what `pack` gives is the normal form of the values: numbers as whole numbers, truth
/// values for `?`, strings cut or filled with zeros, and Pascal strings cut to the least of the
/// field's length less 1 and 255.
///
/// Example: `?4s` of the values 5 and `b"ab"` is written, and read as true and `b"ab\0\0"`.
pub fn reads_what_was_written()
    ensures { ReadsWhatWasWritten }
{}

/// What `pack` gives has the size of the format.
///
/// Example: `pack` of `<hI` gives 6 bytes.
pub fn packing_fills_the_format()
    ensures { PackingFillsTheFormat }
{}

/// `unpack` refuses no bytes of the format's size, and reads them as the values of its fields.
///
/// Example: `unpack` of `<hI` reads any 6 bytes, as two values.
pub fn bytes_of_the_size_are_read()
    ensures { BytesOfTheSizeAreRead }
{}

/// `pack` of what `unpack` gives is the bytes that were read, where no byte of them is lost: in
/// formats without `x`, alignment, `?` and `p`.
///
/// Example: `unpack` of `<hI` reads `b"\x01\0\x02\0\0\0"` as 1 and 2, and `pack` of these gives the same bytes.
pub fn writes_what_was_read()
    ensures { WritesWhatWasRead }
{}

/// The formats of one native code are the letters of its codes, all but `x`, `s` and `p`, and these letters behind `@`.
///
/// Example: `H` and `@H` are formats of the one native code `UShort`, and `s` is none.
pub fn native_codes_are_spelled()
    ensures { NativeCodesAreSpelled }
{}

/// A format of one native code is one of `struct`, and its items have the size of the code.
///
/// Example: `H` is the format of one code, and has the size 2.
pub fn native_codes_have_their_size()
    ensures { NativeCodesHaveTheirSize }
{}
