//! What the definitions of words say, whatever the words: each function's contract is a law, and its body is empty.
ghost use Rattle.std.specs.Prelude.{ℕ, ◌≡◌, List};
ghost use Rattle.dm_words.specs.Words.{Asks, AsksNothing, Command};
ghost use Rattle.dm_words.specs.Serving.{AsksLive, LiveAsked};

/// Words ask for one thing at most.
pub fn words_ask_for_one_thing()
    ensures { (words : List (List ℕ)) (one other : Command) → Asks words one → Asks words other → one ≡ other }
{}

/// Words ask one thing of a server at most.
pub fn words_ask_one_thing_of_a_server()
    ensures { (words : List (List ℕ)) (one other : LiveAsked) → AsksLive words one → AsksLive words other → one ≡ other }
{}

/// Words that ask something of a server ask for no command.
pub fn words_of_a_server_are_no_command()
    ensures { (words : List (List ℕ)) (live : LiveAsked) → AsksLive words live → AsksNothing words }
{}
