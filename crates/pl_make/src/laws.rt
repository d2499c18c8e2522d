//! What a generated capture is to its reading.
ghost use Rattle.pl_make.specs.Laws.{IsReadAsItems};

/// For every number and up to 1,000,000 rounds, the bytes of the capture are read as its items and
/// end with the right end record.
pub fn read_as_items()
    ensures { IsReadAsItems }
{
    pl_capture::reads_back();
}
