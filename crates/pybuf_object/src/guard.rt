//! What may be resized while nothing of it is lent.
ghost use Rattle.std.specs.Prelude.{◌≡◌, ◌↔◌, IfOk, IfSome, IfErr, IsOk, IsSome};
ghost use Rattle.std.specs.Borrow.{sem, LendsIf, LendsIfOk};
ghost use Rattle.pybuf_value.specs.declared.faults.Fault.{Fault};
ghost use Rattle.pybuf_command.specs.declared.kinds.ExporterKind.TheVariants as kinds;
ghost use Rattle.pybuf_state.specs.Exporter.{Exporter, exports_of};
ghost use Rattle.pybuf_state.specs.Bytes.{Bytes, bytes_row};
ghost use Rattle.pybuf_exporter.specs.Lending.{resized_exporter};

use pybuf_value::Fault;

/// Bytes that may be resized while no view of them is unreleased. A bytearray has this trait.
/// Example: a function that takes a `G: BufferResizeGuard` adds a byte by `guard.try_resizable()?.push(b'\n')?`.
pub trait BufferResizeGuard {
    /// Its exporter.
    ghost exporter: { Self → Exporter };

    /// What it is with other bytes, of any number, in place of its own.
    ghost resized: { Self → Bytes → Self };

    /// The bytes, lent to be changed in any way, in number too. Views and iterators stay. When the loan ends, what was
    /// left behind it are its bytes. It is None exactly where a view is unreleased, and nothing is changed then. Takes
    /// no memory.
    /// Example: of `bytearray(b"abc")` with an unreleased view it is None.
    fn try_resizable_opt(&mut self) -> Option<&mut Vec<u8>>
        requires { (exporter self.old).kind ≡ kinds.ByteArray }
        ensures* writes_back { sem 𝓛 (LendsIf Self.row bytes_row self.entry result (resized self.old) self.old) }
        ensures value { IfSome result (λ bytes. bytes.now.items ≡ (exporter self.old).bytes) }
        ensures exact { IsSome result ↔ (exports_of (exporter self.old) ≡ 0) };

    /// The bytes, lent as by `try_resizable_opt`, for a caller that hands on a `Fault`.
    ///
    /// Refused with `BufferError` exactly where a view is unreleased. Nothing is changed then.
    /// Example: of `bytearray(b"abc")` with an unreleased view it is `Err(Fault::Buffer)`.
    fn try_resizable(&mut self) -> Result<&mut Vec<u8>, Fault>
        requires { (exporter self.old).kind ≡ kinds.ByteArray }
        ensures* writes_back { sem 𝓛 (LendsIfOk Self.row bytes_row self.entry result (resized self.old) self.old) }
        ensures value { IfOk result (λ bytes. bytes.now.items ≡ (exporter self.old).bytes) }
        ensures refused { IfErr result (λ fault. fault ≡ Fault.Buffer) }
        ensures exact { IsOk result ↔ (exports_of (exporter self.old) ≡ 0) };

    /// Other bytes are all that changes of its exporter: kind, views and iterators stay.
    ghost keeps_the_rest: { (x : Self) (bytes : Bytes) → exporter (resized x bytes) ≡ resized_exporter (exporter x) bytes };
}
