//! Laws of disks.

ghost use Rattle.std.specs.Prelude.{◌≡◌, ◌≤◌, [], ◌∷◌, ◌++◌, ℕ, List, length, take};
ghost use Rattle.dr_disk.specs.Calls.{Call, Write, FailedWrite, Cut, FailedCut, Sync, State, step, run, content_after};
ghost use Rattle.dr_disk.specs.{Crashed.IsFilled, Images.IsImage, Ranges.{IsImageByRanges, pend_all, settled}};

/// A law: what a read gives is one of the images that a crash may leave.
pub fn content_is_an_image()
    ensures { (calls : List Call) → IsImage (run calls) (content_after calls) }
{}

/// A law: what a crash leaves after a sync is what a read gives.
pub fn syncs_leave_the_content()
    ensures { (calls : List Call) (image : List ℕ) → IsImage (run (calls ++ Sync ∷ [])) image
        → image ≡ content_after calls }
{}

/// A law: of a disk that loses no byte outside of the ranges that were written, and of its end, a crash
/// leaves one of the images. So what is known of all images holds of what such a disk leaves.
pub fn ranges_leave_no_more()
    ensures { (calls : List Call) (image : List ℕ) → IsImageByRanges calls image
        → IsImage (run calls) image }
{}

/// A law: a write or a cut that is done in part leaves no image that it could not leave as a whole.
/// So the moments between calls are all that have to be looked at.
pub fn parts_leave_no_more()
    ensures write { (s : State) (at k : ℕ) (bytes image : List ℕ) → at ≤ length s.content
        → IsImage (step s (Write at (take k bytes))) image → IsImage (step s (Write at bytes)) image }
    ensures failed_write { (s : State) (at k : ℕ) (bytes image : List ℕ) → at ≤ length s.content
        → IsImage (step s (Write at (take k bytes))) image
        → IsImage (step s (FailedWrite at (length bytes))) image }
    ensures cut { (s : State) (to more : ℕ) (image : List ℕ) → to ≤ more
        → IsImage (step s (Cut more)) image → IsImage (step s (Cut to)) image }
    ensures failed_cut { (s : State) (to more : ℕ) (image : List ℕ) → to ≤ more
        → IsImage (step s (Cut more)) image → IsImage (step s (FailedCut to)) image }
{}

/// A law: what a crash leaves where all that may have changed is filled with one byte is one of the images.
pub fn filled_is_an_image()
    ensures { (fill : ℕ) (calls : List Call) (image : List ℕ)
        → IsFilled fill (pend_all (settled []) calls) image → IsImage (run calls) image }
{}
