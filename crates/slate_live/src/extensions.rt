// What a user's own code adds to a run.
use slate_types::{MergeOperator, PrefixExtractor};

/// The merge operator and the prefix extractor that commands are done with, where there are any.
#[derive(Drop)]
pub(crate) struct Extensions<'a, M: MergeOperator, E: PrefixExtractor> {
    pub(crate) operator: Option<&'a M>,
    pub(crate) extractor: Option<&'a E>,
}
