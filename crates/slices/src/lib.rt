// Parts of slices, or nothing where there is none, and bytes as words: what is here promises safety only.
#![tactic(auto)]

// The part of `s` from `start` to `end`; nothing where there is none.
pub fn part_of<T>(s: &[T], start: usize, end: usize) -> &[T] {
    if start <= end && end <= s.len() {
        &s[start..end]
    } else {
        &s[0..0]
    }
}

// The first `n` of `s`, or none where there are not so many.
pub fn first<T>(s: &[T], n: usize) -> &[T] {
    part_of(s, 0, n)
}

// The bytes as words, one a byte, as far as there are words, and how many that is.
pub fn spread(bytes: &[u8], words: &mut [u32]) -> usize {
    let count = bytes.len().min(words.len());
    for k in 0..count {
        words[k] = u32::from(bytes[k]);
    }
    count
}
