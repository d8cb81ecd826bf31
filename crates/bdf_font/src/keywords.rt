//! The words that lines of a font begin with, and how far its lines were read.

/// The first word of a line that is looked at.
#[derive(Clone, Copy, Debug, PartialEq, Eq)]
pub enum Keyword {
    Comment,
    StartFont,
    FontBoundingBox,
    StartProperties,
    EndProperties,
    StartChar,
    Encoding,
    DWidth,
    BBox,
    Bitmap,
    EndChar,
    EndFont,
}

/// These words, as a font writes them.
pub const KEYWORDS: [(&'static str, Keyword); 12] = [
    ("COMMENT", Keyword::Comment),
    ("STARTFONT", Keyword::StartFont),
    ("FONTBOUNDINGBOX", Keyword::FontBoundingBox),
    ("STARTPROPERTIES", Keyword::StartProperties),
    ("ENDPROPERTIES", Keyword::EndProperties),
    ("STARTCHAR", Keyword::StartChar),
    ("ENCODING", Keyword::Encoding),
    ("DWIDTH", Keyword::DWidth),
    ("BBX", Keyword::BBox),
    ("BITMAP", Keyword::Bitmap),
    ("ENDCHAR", Keyword::EndChar),
    ("ENDFONT", Keyword::EndFont),
];

/// How far the lines of a font were read.
#[derive(Clone, Copy, Debug, PartialEq, Eq)]
pub enum Phase {
    /// Nothing yet.
    Start,
    /// Before the first character.
    Head,
    /// Among the properties of the head.
    Properties,
    /// In a character, before its rows.
    Char,
    /// In a character, with so many rows to come.
    Rows(u32),
    /// After a character.
    Between,
    /// At its end.
    Ended,
}
