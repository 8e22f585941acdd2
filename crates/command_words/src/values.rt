//! What words are.

/// The words of a command line, each as it stands.
#[derive(Drop)]
pub struct Values<'a> {
    pub command: Option<&'a str>,
    pub program: Option<&'a str>,
    pub more: Vec<&'a str>,
    pub cores: Option<&'a str>,
    pub place: Option<&'a str>,
    pub budget: Option<&'a str>,
    pub order: Option<&'a str>,
    pub fold: bool,
}
