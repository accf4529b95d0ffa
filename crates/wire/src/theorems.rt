// What is written on the link is read back.
ghost use Rattle.wire.specs.Reading.{RequestsReadBack, RepliesReadBack};

/// A theorem: every request is read back as it was written.
pub fn requests_read_back()
    ensures { RequestsReadBack }
{}

/// A theorem of every field: every reply with as many codes as were asked for is accepted, and its values
/// are read back as they were written.
pub fn replies_read_back()
    ensures { RepliesReadBack }
{}
