//! What a run of the program left.

/// What one run of the program answered and wrote.
#[derive(Debug, Drop)]
pub struct Outcome {
    pub status: u8,
    pub output: Vec<u8>,
}

impl Outcome {
    pub fn is(&self, status: u8, output: &str) -> bool {
        self.status == status && self.output.as_slice() == output.as_bytes()
    }

    /// Whether these lines were written, which are parted by `;`, and nothing else.
    pub fn has_lines(&self, lines: &str) -> bool {
        let mut rest = self.output.as_slice();
        for line in lines.split(';') {
            match rest.strip_prefix(line.trim().as_bytes()) {
                Some([b'\n', behind @ ..]) => rest = behind,
                _ => return false,
            }
        }
        rest.is_empty()
    }
}
