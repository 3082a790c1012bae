// What is said on standard error where there is no job.
use program::say::Voice;

pub fn usage(voice: Voice) {
    voice.tell(b"usage: ");
    voice.tell(voice.program);
    voice.tell(b" RULE [LIMIT]\n");
}

// What stands in the limit's place need not be UTF-8.
pub fn no_limit(voice: Voice, text: &[u8]) {
    voice.tell(voice.program);
    voice.tell(b": LIMIT is a number of 0 to 65535 without leading zeros, not ");
    voice.tell(text);
    voice.tell(b"\n");
}
