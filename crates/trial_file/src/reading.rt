// What reading tells of a file: accepted, or refused with a number and a place.
use file_reader::read;
use trial_vectors::Refused;

pub fn agrees(f: &[u8], told: Result<(), Refused>) -> bool {
    read(f).map(|_| ()).map_err(Refused::from) == told
}
