// The labels of the variables, merged constraint by constraint.
ghost use Rattle.std.specs.Prelude.{◌≡◌, ◌<◌};
ghost use Rattle.group.specs.Groups.{relabelled, merge, merged_with, merged};
ghost use Rattle.problem_writer.specs.Listing.{tied_in};
ghost use Rattle.group_labels.specs.Labels.{own_labels};

use problem_writer::tied;
use solver_arrays::Arrays;

// A label, where low and high turned out to be labels of one group.
fn relabelled(low: u8, high: u8, label: u8) -> u8
    ensures { result ≡ relabelled low high label }
{
    if label == high { low } else { label }
}

// The larger label of x and y becomes the smaller, wherever it stands.
fn merge(labels: &mut [u8; 32], x: usize, y: usize)
    requires { (x < 32) × (y < 32) }
    ensures { labels.new ≡ merge labels.old x y }
{
    let low = labels[x].min(labels[y]);
    let high = labels[x].max(labels[y]);
    for i in 0..32 {
        labels[i] = relabelled(low, high, labels[i]);
    }
}

// y is joined with the earlier variables that a constraint joins it with.
fn merge_earlier(labels: &mut [u8; 32], arrays: &Arrays, y: usize)
    requires { y < 32 }
    ensures { labels.new ≡ merged_with (tied_in arrays.now) labels.old y y }
{
    for x in 0..y {
        if tied(arrays, x, y) {
            merge(labels, x, y);
        }
    }
}

// At first each variable has its own label.
fn own_labels() -> [u8; 32]
    ensures { result ≡ own_labels }
{
    let mut out = [0; 32];
    for i in 0..32 {
        out[i] = i as u8;
    }
    out
}

// The labels after all constraints.
pub fn labels(arrays: &Arrays) -> [u8; 32]
    ensures { result ≡ merged (tied_in arrays.now) own_labels arrays.now.n }
{
    let mut out = own_labels();
    for y in 0..arrays.n {
        merge_earlier(&mut out, arrays, y);
    }
    out
}
