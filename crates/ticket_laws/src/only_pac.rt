//! Authorization data that hold a PAC and nothing else (RFC 4120, section 5.2.6.1; MS-PAC, section 2.8.3).
ghost use Rattle.ticket_laws.specs.Laws.{PacIsFound, PacIsZeroed, PacIsShort, PacIsWritable};

/// What holds of authorization data with a PAC alone, of fewer than 2^31 bytes where it is read again.
pub fn lone_pac_keeps_laws()
    ensures found { PacIsFound }
    ensures value { PacIsZeroed }
    ensures short { PacIsShort }
    ensures well { PacIsWritable }
{}
