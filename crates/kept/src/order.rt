// Whose turn it is: the first unfinished job after the one served last, in circular order.
ghost use Rattle.std.specs.Prelude.{List, ◌≡◌, ◌<◌, ℕ, suc, IfSome};
ghost use Rattle.job.specs.Job.{is_unfinished_phase};
ghost use Rattle.kept.specs.Kept.{heads, head_at, found_of};
ghost use Rattle.turns.specs.Dispatcher.{seek};

// The number of the job, where one is unfinished.
pub fn next_unfinished(last: usize, states: &[[u32; 3]; 8]) -> Option<usize>
    ensures found { (extents checks marks : List (List ℕ)) →
        found_of result ≡ seek (λ k. is_unfinished_phase (head_at (heads states.now extents checks marks) k).phase) (suc last) 8 }
    ensures below { IfSome result (λ k. k < 8) }
{
    for i in 0..8 {
        let k = (last % 8 + 1 + i) % 8;
        if states[k][0] == 3 {
            return Some(k);
        }
    }
    None
}
