// A log that owns the bytes of its file.
ghost use Rattle.images.specs.Records.{Records, record_count};

mod calls;

/// The events of a rig log, one below the other.
#[derive(Drop)]
pub struct Log {
    bytes: Vec<u8>,
    ghost whole: { Records bytes.items (record_count bytes.items) },
}
