ghost use Rattle.std.specs.Prelude.{◌≡◌, ◌≢◌, ℕ, List};
ghost use Rattle.host_trait.specs.declared.channels.FileId.{FileId};
ghost use Rattle.host_trait.specs.Disk.{MayLeave};
ghost use Rattle.host_trait.specs.World.{Disk, Image, IsImage, with_bytes};

/// A crash leaves each file by itself: where it may leave an image, and these bytes in one file, it may leave that image with
/// these bytes in that file.
pub fn files_crash_apart()
    ensures image { (disk : Disk) (image : Image) (file : FileId) (bytes : List ℕ) → IsImage disk image → MayLeave (disk file) bytes
        → IsImage disk (with_bytes image file bytes) }
    ensures there { (image : Image) (file : FileId) (bytes : List ℕ) → with_bytes image file bytes file ≡ bytes }
    ensures others { (image : Image) (file : FileId) (bytes : List ℕ) (f : FileId) → f ≢ file → with_bytes image file bytes f ≡ image f }
{}
