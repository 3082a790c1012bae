// What nanounhex says on standard error.
use hexread::answer::Refusal;
use program::say::Streams;

// The verdict, and behind a refusal why, for whoever sent the rule.
pub fn verdict(to: Streams, answer: Result<(), Refusal>, count: usize) {
    to.voice
        .tell(hexverdict::verdict::verdict(answer, count).as_bytes());
    if let Err(refusal) = answer {
        to.voice.why(why(refusal).as_bytes());
    }
}

// What is wrong with the line of the verdict, or with the whole file, and what to do. An image has 256 bytes here, so 19 does not occur.
fn why(refusal: Refusal) -> &'static str {
    match refusal {
        Refusal::NoImage => "an image has 256 bytes",
        Refusal::Shape(_) =>
            "the line is not a whole record: a colon, then two hexadecimal digits a byte, as many data bytes as it says, none in an end \
             record, and a line end; mail may wrap or cut lines, so send the file as an attachment",
        Refusal::Checksum(_) =>
            "the digits of the line do not fit its checksum: one was changed on its way; send the file again",
        Refusal::OtherType(_) =>
            "the line is a record of another type than 00, data, and 01, the end: write the rule as plain Intel HEX, without segments \
             and start addresses",
        Refusal::PastEnd(_) =>
            "the line has a byte above address 0xFF, the last of a rule: write the rule for addresses 0x00 to 0xFF",
        Refusal::SetTwice(_) =>
            "the line has a byte for an address that a line above it has set: take one of the two out",
        Refusal::NoEnd =>
            "there is no end record, such as :00000001FF: the file was cut; send it again",
        Refusal::TextAfter =>
            "there is text behind the end record: take out all that is below it, such as the last words of a mail, and empty lines too",
    }
}

pub fn too_long(to: Streams, length: usize) {
    to.voice.explain(format_args!("more than {length} bytes, which is more than a rule needs"));
}
