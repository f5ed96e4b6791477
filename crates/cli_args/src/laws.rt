//! The laws of the command line, as contracts of lemma functions without a body.

ghost use Rattle.cli_args.specs.Laws.{AcceptedArgumentsAreRead, HasOneRequest, PlainArgumentsAsk};

/// States that arguments make at most one request.
pub fn one_request()
    ensures { HasOneRequest }
{}

/// States that a command line in plain form is accepted and makes the request that the command line
/// states.
pub fn plain_arguments_ask()
    ensures { PlainArgumentsAsk }
{}

/// States that arguments without a clap error parse to some request.
pub fn accepted_arguments_are_read()
    ensures { AcceptedArgumentsAreRead }
{}
