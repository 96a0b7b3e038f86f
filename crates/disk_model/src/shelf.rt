ghost use Rattle.std.specs.Prelude.{◌≡◌, ℕ, ◌≤◌, Bool, IsTrue, List, Option, option_map, IfOk, OnOk, OnErr};
ghost use Rattle.disk_model.specs.Books.{BookName};
ghost use Rattle.disk_model.specs.Calls.{IfTold, IsCall};
ghost use Rattle.disk_model.specs.Crashes.{Follows, Narrows, IsStepOf};
ghost use Rattle.disk_model.specs.Shelves.{Puts, PutsOrNot, Removes, RemovesOrNot, AreNumbersOf};

use crate::DeviceError;
use std::alloc::Global;

/// A set of numbered files.
///
/// A put that succeeded stays. A put that failed, or that a crash cut short, leaves the number absent or
/// with any bytes. After a remove, a crash may leave the file or not. Each call may answer `Memory` at any
/// time, and `Fault` only with a unit of the shelf's own book.
///
/// Contracts need not see its content or its crash images: of a real folder they see neither. Nothing is then
/// claimed of them.
pub trait Shelf {
    /// The book of its failures.
    ghost book: { Self → BookName };

    /// How many units were drawn from that book.
    ghost count: { Self → ℕ };

    /// How many calls were made of it. It is 0 of a shelf that does not count them.
    ghost calls: { Self → ℕ };

    /// Whether contracts see its content.
    ghost tells: { Self → Bool };

    /// The bytes of the file with a number, where there is one.
    ghost content: { Self → ℕ → Option (List ℕ) };

    /// Whether contracts see its crash images.
    ghost tells_images: { Self → Bool };

    /// What a crash at this moment may leave. A shelf whose images contracts do not see has none.
    ghost may_leave: { Self → (ℕ → Option (List ℕ)) → Type 0 };

    /// The moment, as a number that does not fall.
    ghost moment: { Self → ℕ };

    /// What a crash at some moment from that one on might have left, in a call or between two.
    ghost left_since: { Self → ℕ → (ℕ → Option (List ℕ)) → Type 0 };

    /// Stores a file, or replaces it.
    fn put(&mut self, alloc: Global, number: u64, bytes: &[u8]) -> Result<(), DeviceError>
        ensures stored { OnOk result (IfTold (tells self.old)
            (Puts number bytes.now (content self.old) (content self.new))) }
        ensures refused { OnErr result (IfTold (tells self.old)
            (PutsOrNot number (content self.old) (content self.new))) }
        ensures durable { OnOk result
            (Follows (Puts number bytes.now) (may_leave self.old) (may_leave self.new)) }
        ensures images { Follows (PutsOrNot number) (may_leave self.old) (may_leave self.new) }
        // A crash within the call may leave what an unfinished put leaves.
        ensures call { IsCall book count calls tells tells_images moment left_since
            (λ _. IsStepOf (PutsOrNot number) (may_leave self.old)) self.old self.new result };

    /// The file with this number, and `None` exactly where there is none.
    fn get(&mut self, alloc: Global, number: u64) -> Result<Option<Vec<u8>>, DeviceError>
        ensures found { IfOk result (λ found. IfTold (tells self.old)
            (option_map (λ bytes. bytes.items) found ≡ content self.old number)) }
        ensures content { IfTold (tells self.old) (content self.new ≡ content self.old) }
        ensures images { Narrows (may_leave self.old) (may_leave self.new) }
        ensures call { IsCall book count calls tells tells_images moment left_since may_leave
            self.old self.new result };

    /// Removes a file. An absent number is no failure.
    fn remove(&mut self, alloc: Global, number: u64) -> Result<(), DeviceError>
        ensures removed { OnOk result (IfTold (tells self.old)
            (Removes number (content self.old) (content self.new))) }
        ensures refused { OnErr result (IfTold (tells self.old)
            (RemovesOrNot number (content self.old) (content self.new))) }
        ensures images { Follows (RemovesOrNot number) (may_leave self.old) (may_leave self.new) }
        ensures call { IsCall book count calls tells tells_images moment left_since may_leave
            self.old self.new result };

    /// The numbers of the files, rising.
    fn list(&mut self, alloc: Global) -> Result<Vec<u64>, DeviceError>
        ensures numbers { IfOk result (λ numbers. IfTold (tells self.old)
            (AreNumbersOf numbers.items (content self.old))) }
        ensures content { IfTold (tells self.old) (content self.new ≡ content self.old) }
        ensures images { Narrows (may_leave self.old) (may_leave self.new) }
        ensures call { IsCall book count calls tells tells_images moment left_since may_leave
            self.old self.new result };

    /// The content is one of the crash images.
    ghost own_image: { (s : Self) → IsTrue (tells s) → IsTrue (tells_images s) → may_leave s (content s) };

    /// This moment is one of those since an earlier one.
    ghost counts_now: { (s : Self) (t : ℕ) (c : ℕ → Option (List ℕ)) → t ≤ moment s → may_leave s c →
        left_since s t c };

    /// What counts since a moment counts since each earlier one.
    ghost counts_earlier: { (s : Self) (t u : ℕ) (c : ℕ → Option (List ℕ)) → t ≤ u → left_since s u c →
        left_since s t c };

    /// Since this moment there is no other.
    ghost only_now: { (s : Self) (c : ℕ → Option (List ℕ)) → left_since s (moment s) c → may_leave s c };
}
