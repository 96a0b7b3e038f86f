ghost use Rattle.std.specs.Prelude.{◌≡◌, ℕ, ◌+◌, ◌^◌, ◌<◌, ◌≤◌, Bool, IsTrue, List, length, take, IfOk, OnOk, OnErr};
ghost use Rattle.disk_model.specs.Books.{BookName};
ghost use Rattle.disk_model.specs.Calls.{IfTold, IsCall};
ghost use Rattle.disk_model.specs.Crashes.{Follows, Narrows, Only};
ghost use Rattle.disk_model.specs.Strips.{Holds, Fills, Torn, Cut};

use crate::DeviceError;
use std::alloc::Global;

/// A file of bytes. Places and lengths count bytes.
///
/// Until a sync, a crash may leave any bytes in a range that was written, and any length between
/// those before and after a cut. A call that fails leaves what such an unsynced call may leave.
/// Each call may answer `Memory` at any time, and `Fault` only with a unit of the strip's own book.
///
/// Contracts need not see its content or its crash images: of a real file they see neither. Nothing is then
/// claimed of them.
pub trait Strip {
    /// The book of its failures.
    ghost book: { Self → BookName };

    /// How many units were drawn from that book.
    ghost count: { Self → ℕ };

    /// How many calls were made of it. It is 0 of a strip that does not count them.
    ghost calls: { Self → ℕ };

    /// Whether contracts see its content.
    ghost tells: { Self → Bool };

    /// The bytes that a read gives.
    ghost content: { Self → List ℕ };

    /// Whether contracts see its crash images.
    ghost tells_images: { Self → Bool };

    /// What a crash at this moment may leave. A strip whose images contracts do not see has none.
    ghost may_leave: { Self → List ℕ → Type 0 };

    /// The moment, as a number that does not fall.
    ghost moment: { Self → ℕ };

    /// What a crash at some moment from that one on might have left, in a call or between two.
    ghost left_since: { Self → ℕ → List ℕ → Type 0 };

    /// Its length, which is below 2^63.
    fn len(&mut self, alloc: Global) -> Result<u64, DeviceError>
        ensures length { IfOk result (λ len. IfTold (tells self.old)
            (len ≡ length (content self.old))) }
        ensures short { IfOk result (λ len. len < 2 ^ 63) }
        ensures content { IfTold (tells self.old) (content self.new ≡ content self.old) }
        ensures images { Narrows (may_leave self.old) (may_leave self.new) }
        ensures call { IsCall book count calls tells tells_images moment left_since may_leave
            self.old self.new result };

    /// Fills `into` from place `at`, and answers with how many bytes. Fewer than `into` has come
    /// only at the end, and past the end none.
    fn read(&mut self, alloc: Global, at: u64, into: &mut [u8]) -> Result<usize, DeviceError>
        ensures filled { IfOk result (λ count. IfTold (tells self.old)
            (Fills (content self.old) at count into.old into.new)) }
        ensures fits { IfOk result (λ count. count ≤ length into.old) }
        ensures content { IfTold (tells self.old) (content self.new ≡ content self.old) }
        ensures images { Narrows (may_leave self.old) (may_leave self.new) }
        ensures call { IsCall book count calls tells tells_images moment left_since may_leave
            self.old self.new result };

    /// Writes `bytes` from place `at` on, over what is there and past the end.
    fn write_at(&mut self, alloc: Global, at: u64, bytes: &[u8]) -> Result<(), DeviceError>
        requires { IfTold (tells self.old) (at ≤ length (content self.old)) }
        ensures written { OnOk result (IfTold (tells self.old)
            (Holds (content self.old) at bytes.now (content self.new))) }
        ensures refused { OnErr result (IfTold (tells self.old)
            (Torn at (length bytes.now) (content self.old) (content self.new))) }
        ensures short { OnOk result (at + length bytes.now < 2 ^ 63) }
        ensures images { Follows (Torn at (length bytes.now)) (may_leave self.old) (may_leave self.new) }
        ensures call { IsCall book count calls tells tells_images moment left_since may_leave
            self.old self.new result };

    /// Leaves the first `at` bytes.
    fn cut(&mut self, alloc: Global, at: u64) -> Result<(), DeviceError>
        requires { IfTold (tells self.old) (at ≤ length (content self.old)) }
        ensures cut { OnOk result (IfTold (tells self.old)
            (content self.new ≡ take at (content self.old))) }
        ensures refused { OnErr result (IfTold (tells self.old)
            (Cut at (content self.old) (content self.new))) }
        ensures images { Follows (Cut at) (may_leave self.old) (may_leave self.new) }
        ensures call { IsCall book count calls tells tells_images moment left_since may_leave
            self.old self.new result };

    /// After it, a crash leaves what a read gives.
    fn sync(&mut self, alloc: Global) -> Result<(), DeviceError>
        ensures durable { OnOk result (IfTold (tells self.old)
            (Only (content self.old) (may_leave self.new))) }
        ensures content { IfTold (tells self.old) (content self.new ≡ content self.old) }
        ensures images { Narrows (may_leave self.old) (may_leave self.new) }
        ensures call { IsCall book count calls tells tells_images moment left_since may_leave
            self.old self.new result };

    /// The content is one of the crash images.
    ghost own_image: { (s : Self) → IsTrue (tells s) → IsTrue (tells_images s) → may_leave s (content s) };

    /// This moment is one of those since an earlier one.
    ghost counts_now: { (s : Self) (t : ℕ) (c : List ℕ) → t ≤ moment s → may_leave s c → left_since s t c };

    /// What counts since a moment counts since each earlier one.
    ghost counts_earlier: { (s : Self) (t u : ℕ) (c : List ℕ) → t ≤ u → left_since s u c → left_since s t c };

    /// Since this moment there is no other.
    ghost only_now: { (s : Self) (c : List ℕ) → left_since s (moment s) c → may_leave s c };
}
