//! Result codes by their names (RFC 4511 4.1.9, appendix A), with what each says of an entry that is added or a search.
ghost use Rattle.std.specs.Prelude.{◌≡◌};
ghost use Rattle.text_faults.specs.Codes.{later_words, word_among, word_of};

/// What a result code says.
pub fn code_word(code: u32) -> &'static str
    ensures { result.now ≡ word_of code }
{
    match code {
        1 => "operations error",
        2 => "protocol error",
        3 => "time limit exceeded",
        4 => "size limit exceeded",
        10 => "referral",
        11 => "administrative limit exceeded",
        16 => "no such attribute",
        17 => "undefined attribute type",
        18 => "inappropriate matching",
        19 => "constraint violation",
        20 => "attribute or value exists",
        21 => "invalid attribute syntax",
        32 => "no such object",
        34 => "invalid name",
        _ => later_word(code),
    }
}

/// As `code_word`, of the codes from 35 on.
fn later_word(code: u32) -> &'static str
    ensures { result.now ≡ word_among later_words code }
{
    match code {
        49 => "invalid credentials",
        50 => "insufficient access rights",
        51 => "busy",
        52 => "unavailable",
        53 => "unwilling to perform",
        64 => "naming violation",
        65 => "object class violation",
        66 => "not allowed on an entry with entries below it",
        67 => "not allowed on the entry's own name",
        68 => "entry already exists",
        69 => "object class modifications prohibited",
        71 => "affects multiple servers",
        80 => "other error",
        _ => "a code without a name",
    }
}
