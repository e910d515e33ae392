// What stands before the first round of Algorithm 4, and what is read off after the last: the places of the sequences, and the alone mark.
#![tactic(auto)]

ghost use Rattle.std.specs.Prelude.{◌≡◌};
ghost use Rattle.ends.specs.Ends.{Startable, Started, alone_mark};

// Before the first round the place of a sequence is its gap, N − N_h.
pub fn start(longest: usize, lengths: &[u16; 8], count: usize) -> [u16; 8]
    requires { Startable longest lengths.now count }
    ensures { Started longest lengths.now count result }
{
    let mut places = [0; 8];
    for h in 0..count {
        places[h] = longest as u16 - lengths[h];
    }
    places
}

// What n_h − l_h has past N − l and past N − N_h is free. N less the smaller of l and N_h is the larger of these two.
pub fn alone(
    longest: usize,
    lengths: &[u16; 8],
    count: usize,
    l: usize,
    places: &[u16; 8],
    sizes: &[u16; 8],
) -> bool
    requires { Startable longest lengths.now count }
    ensures { result ≡ alone_mark longest lengths.now count l places.now sizes.now }
{
    (0..count).all(|h| {
        let place = usize::from(places[h]);
        let size = usize::from(sizes[h]);
        let long = usize::from(lengths[h]);
        place + usize::min(l, long) <= size + longest
    })
}
