// The words that the program is started with.
use std::env::Env;
use std::io::Write;
use streams::output::tell;
use streams::word::{has_word, is_word};

#[derive(Clone, Copy)]
pub(crate) struct Words {
    pub security_first: bool,
    pub is_private: bool,
}

// `security` or `properties`, and then nothing or `private`.
pub(crate) fn given_words<V: Env>(env: &V) -> Option<Words> {
    let security_first = is_word(env, 1, b"security");
    let is_private = has_word(env, 2);
    let are_known = (security_first || is_word(env, 1, b"properties"))
        && (!is_private || is_word(env, 2, b"private"))
        && !has_word(env, 3);
    are_known.then_some(Words {
        security_first,
        is_private,
    })
}

pub(crate) fn tell_usage<E: Write>(errors: &mut E) {
    tell(
        errors,
        b"usage: inspect security|properties [private] < SECTION\n",
    );
    tell(errors, b"  security    a SecurityHeader stands first\n");
    tell(
        errors,
        b"  properties  the MessagePropertiesHeader stands first\n",
    );
    tell(
        errors,
        b"  private     print CorrelationID, ApplicationTag and the private parts too\n",
    );
}
