//! The styles of a JSON text, and its six marks.
/// How a JSON text lies on its lines.
#[derive(Clone, Copy, Debug, PartialEq, Eq)]
pub enum JsonStyle {
    /// A line for each field of a map, and for each item of an array that contains a map or an array.
    Stacked,
    /// All on one line.
    Single,
}

/// The six marks of JSON, by what they do (RFC 8259, section 2).
#[derive(Clone, Copy, Debug, PartialEq, Eq)]
pub enum JsonMark {
    /// `{`
    BeginMap,
    /// `}`
    EndMap,
    /// `[`
    BeginArray,
    /// `]`
    EndArray,
    /// `:`
    Colon,
    /// `,`
    Comma,
}
