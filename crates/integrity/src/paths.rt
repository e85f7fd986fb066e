// The path of a subgoal or of an answer, held to be the form of legal terms.
ghost use Rattle.std.specs.Prelude.{◌≡◌};
ghost use Rattle.plain.specs.Coding.{coding_of};
ghost use Rattle.trie.specs.Runs.{Ends, path_to};
ghost use Rattle.agreement.specs.Whole.{path_passes};
ghost use Rattle.integrity.specs.Tests.{form_whole};

use path_terms::path_worth;
use trie::End;

// A path, from its leaf up: of a subgoal, that is called with m variables, or of the m terms of an answer.
pub fn path_whole(space: &[u32], end: End, m: usize, called: bool, edition: u32) -> bool
    requires { Ends space.now end }
    ensures { result ≡ path_passes (path_to space.now end) (form_whole (coding_of edition) called m) }
{
    if called {
        let n = path_worth(space, end, 1, true, edition);
        return 0 < n && n - 1 == m;
    }
    0 < path_worth(space, end, m, false, edition)
}
